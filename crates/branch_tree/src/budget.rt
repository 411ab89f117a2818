/// How many branches may still be made.
#[derive(Clone, Copy)]
pub struct Budget {
    pub left: u64,
}
