// What waits to be pasted.
ghost use Rattle.std.specs.Prelude.{◌≡◌};
ghost use Rattle.book_model.specs.Clipboard.{moving, nothing, without_cut};
ghost use Rattle.session_operations.specs.Seen.{CanPaste, area_moving, clip_of};
ghost use Rattle.session_operations.specs.internal.WaitingProp.{can_paste-prop};

use cell_addr::Block;
use clip_board::Clip;

/// What waits to be pasted: nothing, copied cells of a block within the limits of a sheet, or a cut block.
#[derive(Drop)]
pub struct Waiting {
    pub clip: Clip,
    pub ghost pastes: { CanPaste clip } by { can_paste-prop clip },
}

impl Waiting {
    /// Nothing waits.
    pub fn nothing() -> Waiting
        ensures { clip_of result.clip ≡ nothing }
    {
        Waiting {
            clip: Clip::Nothing,
        }
    }

    /// A block is cut.
    pub fn cut(area: Block) -> Waiting
        ensures { clip_of result.clip ≡ moving area }
    {
        Waiting {
            clip: Clip::cut_of(area),
        }
    }

    /// The block that is cut, if one is.
    pub fn cut_area(&self) -> Option<Block>
        ensures { result ≡ area_moving (clip_of self.now.clip) }
    {
        match &self.clip {
            Clip::Cut(area) => Some(*area),
            Clip::Nothing | Clip::Copied(_, _) => None,
        }
    }

    /// A pending cut ends, and a copy stays.
    pub fn clear_cut(&mut self)
        ensures { clip_of self.new.clip ≡ without_cut (clip_of self.old.clip) }
    {
        if let Clip::Cut(_) = &self.clip {
            self.clip = Clip::Nothing;
        }
    }
}
