// What a line lends to its call: both memories, of the lengths that the line gives, and the numbers of the line.
use super::line::Numbers;

#[derive(Drop)]
pub(crate) struct Lent<'a> {
    pub central: &'a mut [u64],
    pub peripheral: &'a mut [u16],
    pub numbers: &'a mut Numbers,
}
