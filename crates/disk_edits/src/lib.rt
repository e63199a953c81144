//! The commands of `disk1541` that change what is on a disk: entries, the title, the BAM.
#![tactic(auto)]

mod arranging;
mod edit;
mod errors;
mod exact;
mod force;
mod order;
mod placing;
mod renaming;
mod retyping;
mod shown;
mod sorting;
mod undeleting;

pub use arranging::{Art, adorned, moved};
pub use edit::{Edit, edited, rest_of};
pub use errors::{ErrorDeed, error_bytes};
pub use exact::{Deed, Desk, done_with};
pub use force::without_fault;
pub use order::{InOrder, Ordering, in_order};
pub use placing::{Laying, Placement, placed};
pub use renaming::{Pair, copied, renamed, require_names};
pub use retyping::retyped;
pub use shown::{Showing, shown_change};
pub use sorting::{Key, key_of_word, sorted};
pub use undeleting::{Gone, given_back};
