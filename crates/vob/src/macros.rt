//! The macro that makes a Vob of written bits, under two names.

/// A `Result<Vob<usize>, AllocError>`: of listed bits, as `vob!(alloc; true, false)`, of `n` times
/// `v`, as `vob!(alloc; v; n)`, or of none, as `vob!(alloc;)`. The values come first, then memory.
#[macro_export]
macro_rules! vob {
    ($alloc:expr;) => {
        $crate::Vob::from_slice($alloc, &[])
    };
    ($alloc:expr; $value:expr; $len:expr) => {
        $crate::Vob::from_elem($alloc, $value, $len)
    };
    ($alloc:expr; $($bit:expr),+ $(,)?) => {
        $crate::Vob::from_slice($alloc, &[$($bit),+])
    };
}

/// `vob!` under a name that no module has. The [`prelude`](crate::prelude) exports it as `vob`.
#[macro_export]
macro_rules! bits {
    ($($tokens:tt)*) => {
        $crate::vob!($($tokens)*)
    };
}
