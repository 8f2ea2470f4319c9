// How many facts are kept, and how many bytes they have.
#[derive(Clone, Copy)]
pub struct Measure {
    pub count: u32,
    pub size: usize,
}
