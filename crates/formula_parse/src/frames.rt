// What is open around the tree that is read.
ghost use Rattle.std.specs.Prelude.{◌≤◌};
ghost use Rattle.formula_tree.specs.Reader.{max_levels};

use formula_tree::MAX_LEVELS;

/// What is open around a tree that is read. How deep a tree reaches is counted from the whole one, whose
/// topmost level is 1.
#[derive(Clone, Copy)]
pub(crate) enum Frame {
    /// An operator of this level, whose right operand the tree is; the left one, under the operator, reaches
    /// so deep.
    Right(u32, u32),
    /// A sign.
    Sign,
    /// Parentheses.
    Parens,
    /// The arguments of a call. Those so far reach so deep; 0 where there is none yet.
    Arguments(u32),
}

/// All that is open, at most as many frames as a tree has levels.
#[derive(Drop)]
pub(crate) struct Frames {
    /// The frames from the innermost on, behind places that are free.
    list: [Frame; 64],
    free: u32,
    ghost within: { free ≤ max_levels },
}

impl Frames {
    ghost use Rattle.std.specs.Prelude.{◌≡◌, ◌<◌, ◌≤◌, [], length, drop};
    ghost use Rattle.std.specs.List.{slice_get};
    ghost use Rattle.std.specs.Option.{option_map};
    ghost use Rattle.formula_tree.specs.Reader.{max_levels};
    ghost use Rattle.formula_parse.specs.internal.Progress.{frames_of, pushed};

    // Nothing is open.
    pub(crate) fn new() -> Frames
        ensures { frames_of result ≡ [] }
    {
        Frames {
            list: [Frame::Sign; 64],
            free: MAX_LEVELS,
        }
    }

    // How many are open.
    pub(crate) fn count(&self) -> u32
        ensures count { result ≡ length (frames_of self.now) }
        ensures within { result ≤ max_levels }
    {
        MAX_LEVELS - self.free
    }

    // The innermost frame.
    pub(crate) fn top(&self) -> Option<Frame>
        ensures { result ≡ slice_get (frames_of self.now) 0 }
    {
        self.list.get(self.free as usize).copied()
    }

    // The innermost frame ends.
    pub(crate) fn pop(&mut self)
        requires { 0 < length (frames_of self.old) }
        ensures { frames_of self.new ≡ drop 1 (frames_of self.old) }
    {
        self.free += 1;
    }

    // Another frame is open, inside the others, where a place is free.
    pub(crate) fn push(&mut self, frame: Frame) -> Option<()>
        ensures { option_map (λ _. frames_of self.new) result ≡ pushed frame (frames_of self.old) }
    {
        if self.free == 0 {
            return None;
        }
        self.free -= 1;
        self.list[self.free as usize] = frame;
        Some(())
    }
}
