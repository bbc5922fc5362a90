//! The type and its macro, for one line: `use vob::prelude::{Vob, vob};`. `use vob::{Vob, vob};`
//! is refused, since it brings the module `vob::vob` beside the crate `vob`.
pub use crate::bits as vob;
pub use crate::vob::Vob;
