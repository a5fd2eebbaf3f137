use desk_io::Desk;
use reorder_command::Progress;

/// A search whose desk is told how far it is.
#[derive(Drop)]
pub(crate) struct Searching<'a, D> {
    pub desk: &'a D,
}

impl<D: Desk> Progress for Searching<'_, D> {
    fn tell(&self, done: u64, all: u64) {
        self.desk.searching(done, all)
    }
}
