use zb_reply::Reply;

/// What a request was answered: the reply, and how many units of work were done behind it.
#[derive(Drop)]
pub struct Answered {
    pub reply: Reply,
    pub units: u64,
}
