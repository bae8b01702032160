//! Tokens in their scopes: where they stand, which have come to a node, and the first one taken away.
#![tactic(auto)]

mod coming;
mod flows;
mod meeting;
mod place;
mod standing;
mod taking;

pub use coming::{comes, has_come, joins, way_by};
pub use flows::are_on_each;
pub use meeting::met_by;
pub use place::{Place, SpotRef};
pub use standing::{first_at, has_token_in, stands, stands_coming};
pub use taking::{take_first, take_scope};
