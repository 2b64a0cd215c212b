// The stack of a walk.
ghost use Rattle.std.specs.Prelude.{◌<◌, ◌≤◌, ◌≡◌};

use definitions::MOST_CHILDREN;

/// How many frames a walk's stack has room for.
pub const MOST_FRAMES: usize = 256;

/// How many values it has room for: at most 16 a frame.
pub const MOST_VALUES: usize = MOST_FRAMES * MOST_CHILDREN;

/// The greatest depth limit.
pub const MOST_DEPTH: u32 = 255;

/// A node under way, and how many of its children have been taken. Its depth is its place in the stack.
#[derive(Clone, Copy, Debug, PartialEq, Eq)]
pub struct Frame {
    pub id: u64,
    pub taken: usize,
}

/// How much of a walk's stack is in use. It stands apart from the arrays, which are read and written by index, so that a run has it in
/// registers.
#[derive(Clone, Copy, Debug, PartialEq, Eq)]
pub struct Heights {
    /// How many frames are in use.
    pub depth: usize,
    /// How many values are in use.
    pub filled: usize,
}

impl Heights {
    ghost use Rattle.turns.specs.Stack.{first_heights};

    /// Those of a walk that begins: one frame, that of the root, and no value.
    pub fn first() -> Heights
        ensures { result ≡ first_heights }
    {
        Heights {
            depth: 1,
            filled: 0,
        }
    }
}

/// The frames of a walk, of which the last one in use is the top, and the values that finished children have left, each an id. Arrays, since
/// a walk has no heap.
#[derive(Drop)]
pub struct Arrays {
    pub frames: [Frame; MOST_FRAMES],
    pub values: [u32; MOST_VALUES],
}

impl Arrays {
    ghost use Rattle.definitions.specs.Limits.{most_nodes};
    ghost use Rattle.turns.specs.Stack.{most_frames, most_values, stack, new_arrays, pushed, given, left};

    /// Those of a stack with a frame for the root, which is always walked.
    pub fn new(root: u64) -> Arrays
        ensures { result ≡ new_arrays root }
    {
        let mut frames = [Frame { id: 0, taken: 0 }; MOST_FRAMES];
        frames[0] = Frame { id: root, taken: 0 };
        Arrays {
            frames,
            values: [0; MOST_VALUES],
        }
    }

    // A frame on top, of which no child has been taken.
    pub(crate) fn push(&mut self, heights: &mut Heights, id: u64)
        requires { heights.old.depth < most_frames }
        ensures { stack self.new heights.new ≡ pushed (stack self.old heights.old) id }
    {
        self.frames[heights.depth] = Frame { id, taken: 0 };
        heights.depth += 1;
    }

    // A value on top.
    pub(crate) fn give(&mut self, heights: &mut Heights, value: u64)
        requires room { heights.old.filled < most_values }
        requires id { value < most_nodes }
        ensures { stack self.new heights.new ≡ given (stack self.old heights.old) value }
    {
        self.values[heights.filled] = value as u32;
        heights.filled += 1;
    }

    // The top frame goes, and leaves a value in place of those from `base` on.
    pub(crate) fn leave(&mut self, heights: &mut Heights, base: usize, value: u64)
        requires frame { 1 ≤ heights.old.depth }
        requires room { base < most_values }
        requires id { value < most_nodes }
        ensures { stack self.new heights.new ≡ left (stack self.old heights.old) base value }
    {
        heights.depth -= 1;
        self.values[base] = value as u32;
        heights.filled = base + 1;
    }
}
