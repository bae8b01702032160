//! What records are made of: keys, moments, texts, variables, expressions and process models.
#![tactic(auto)]

mod copy;
mod key;
mod list;
mod moment;
mod pair;
mod partition;
mod text;
mod value;
mod vars;

pub use copy::TryCopy;
pub use key::Key;
pub use list::List;
pub use moment::Moment;
pub use pair::Pair;
pub use partition::{PartitionId, hash_of, home_of};
pub use text::Text;
pub use value::Value;
pub use vars::{Variable, Vars};
