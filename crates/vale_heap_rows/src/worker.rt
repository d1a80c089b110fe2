use vale_table::Desk;

/// A worker with a seat of its own, and the frames that it claimed.
#[derive(Drop)]
pub struct Worker<'t, B> {
    pub desk: Desk<'t, B>,
    pub frames: Vec<u32>,
}
