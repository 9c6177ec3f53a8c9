// The sizes that a stream goes by, in numbers.

// The parameters of a frame, the data of a reply.
pub const DATA_MOST: usize = 15;

// The shortest frame: no parameters, no data.
pub const FRAME_LEAST: usize = 4;

// A frame or a reply.
pub const FRAME_MOST: usize = 19;

// What waits for the rest of a frame.
pub const WAIT_MOST: usize = 18;

// What a bytes call takes.
pub const INPUT_MOST: usize = 4096;

// A reading of six channels, the data of a measuring frame.
pub const SAMPLE_SIZE: usize = 24;

// What the reader takes.
pub const CAPTURE_MOST: usize = 4096;

// Waiting bytes and what a candidate that starts in them can reach of the input.
pub const JOIN_MOST: usize = WAIT_MOST + FRAME_MOST;

// Room for the replies to all of that and all of an input.
pub const ROOM_MOST: usize = FRAME_MOST * ((WAIT_MOST + INPUT_MOST) / 4);
