// The two work lists of a question, a key and a corner at each place.
#[derive(Drop)]
pub(crate) struct Work<'a> {
    pub keys: &'a mut [u64],
    pub corners: &'a mut [u32],
}
