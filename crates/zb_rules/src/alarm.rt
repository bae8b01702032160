use zb_model::{Command, Key, Moment};

/// What time makes due: a command, from a moment on, for what has this key.
#[derive(Drop)]
pub struct Alarm {
    pub moment: Moment,
    pub key: Key,
    pub command: Command,
}
