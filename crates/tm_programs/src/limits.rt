/// How deep blocks of a program nest at most.
pub const MOST_BLOCKS: usize = 16;
