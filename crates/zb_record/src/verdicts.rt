// What is said of a message that was sent to another partition, by what came of it.
ghost use Rattle.std.specs.Prelude.{◌≡◌, ◌++◌};
ghost use Rattle.std.specs.Fmt.{decimal};
ghost use Rattle.std.specs.Str.{bytes_eq};
ghost use Rattle.zb_record.specs.Answers as answers;

use zb_model::{Command, Key, MessageCorrelation, Outcome, Rejection, SubscribedMessage};

/// What is said of a message to who sent it: that it was taken, or turned away; nothing where it may still be taken.
/// Where it was rejected, it goes through the reason.
pub fn verdict(sent: &MessageCorrelation, outcome: &Outcome) -> Option<Command>
    ensures { result ≡ answers.verdict sent.now outcome.now }
{
    let told = SubscribedMessage {
        subscription: sent.subscription,
        message: sent.message,
    };
    match outcome {
        Outcome::Accepted(_) => Some(Command::MessageSubscriptionCorrelate(told)),
        Outcome::Rejected(rejection) if was_taken(sent, rejection) => {
            Some(Command::MessageSubscriptionCorrelate(told))
        }
        Outcome::Rejected(rejection) if is_turned_away(sent, rejection) => {
            Some(Command::MessageSubscriptionReject(told))
        }
        Outcome::Rejected(_) => None,
    }
}

// Whether the rejection says that the message was correlated before.
fn was_taken(sent: &MessageCorrelation, rejection: &Rejection) -> bool
    ensures { result ≡ bytes_eq rejection.now.reason (answers.was_correlated sent.now.message) }
{
    tells_of(
        rejection.reason.as_str(),
        "message ",
        sent.message,
        " was correlated",
    )
}

// Whether the rejection says that the subscription isn't there, or is being deleted.
fn is_turned_away(sent: &MessageCorrelation, rejection: &Rejection) -> bool
    ensures { result ≡ answers.is_turned_away sent.now rejection.now }
{
    let reason = rejection.reason.as_str();
    let subscription = sent.subscription;
    tells_of(reason, "no subscription ", subscription, "")
        || tells_of(reason, "subscription ", subscription, " is being deleted")
}

// Whether a text is this one, with the key in decimal behind its front.
fn tells_of(text: &str, front: &str, key: Key, behind: &str) -> bool
    ensures { result ≡ bytes_eq text.now (front.now ++ (decimal key ++ behind.now)) }
{
    let Some(rest) = text.as_bytes().strip_prefix(front.as_bytes()) else {
        return false;
    };
    let mut buffer = itoa::Buffer::new();
    let digits = buffer.format(key.number());
    let Some(rest) = rest.strip_prefix(digits.as_bytes()) else {
        return false;
    };
    rest == behind.as_bytes()
}
