// A chunk of a Deliver (01 "Chunks").
use crate::place::Place;

// The twelve numbers of the header, in wire order.
#[derive(Clone, Copy, Debug, PartialEq, Eq)]
pub struct ChunkHeader {
    pub magic: i8,
    pub chunk_type: i8,
    pub entries: u16,
    pub records: u32,
    pub timestamp: i64,
    pub epoch: u64,
    pub first_offset: u64,
    pub checksum: i32,
    pub data_length: u32,
    pub trailer_length: u32,
    pub bloom_size: u8,
    // 24 bits.
    pub reserved: u32,
}

// The header, and the place of the data behind it.
#[derive(Clone, Copy, Debug, PartialEq, Eq)]
pub struct Chunk {
    pub header: ChunkHeader,
    pub data: Place,
}
