//! What writes more than a record: a new file, its growth, and the lists of its side sectors.

mod adding_sides;
mod filling;
mod freeing;
mod fresh;
mod growing;
mod making;
mod relisting;

pub use adding_sides::begin_empty_side;
pub use filling::fill_up;
pub use freeing::free_sides;
pub use fresh::{fresh_byte, fresh_from, full_end};
pub use growing::{begin_side, lengthen, link_side, list_block};
pub use making::{claim_two, write_new};
pub use relisting::list_anew;
