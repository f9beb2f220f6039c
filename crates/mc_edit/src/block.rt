//! The block of a text.
ghost use Rattle.std.specs.Prelude.{◌≡◌, ◌<◌, ◌≤◌, IfSome};
ghost use Rattle.mc_edit.specs.Edits.{marked_at, span_between, block_span};
ghost use Rattle.mc_edit.specs.Changes.{IsWithin};

/// Where a block begins and ends. An open one ends at the point, on either side of its start; an
/// empty one counts as none.
#[derive(Clone, Copy, Debug, PartialEq, Eq)]
pub enum Block {
    Absent,
    Open(usize),
    Fixed(usize, usize),
}

impl Block {
    /// A mark begins a block at the point, the next one fixes it, and the third begins a new one.
    pub fn marked_at(self, point: usize) -> Block
        ensures { result ≡ marked_at point self }
    {
        match self {
            Block::Open(start) => Block::Fixed(start, point),
            Block::Absent | Block::Fixed(_, _) => Block::Open(point),
        }
    }

    /// The places between which the block lies: an open one ends at the point, and an
    /// empty one counts as none.
    pub fn span(self, point: usize) -> Option<(usize, usize)>
        ensures value { result ≡ block_span self point }
        ensures ordered { IfSome result (λ span. span.0 < span.1) }
    {
        match self {
            Block::Absent => None,
            Block::Open(start) => span_between(start, point),
            Block::Fixed(start, end) => span_between(start, end),
        }
    }
}

/// What lies between two places, in their order.
fn span_between(one: usize, other: usize) -> Option<(usize, usize)>
    ensures value { result ≡ span_between one other }
    ensures ordered { IfSome result (λ span. span.0 < span.1) }
{
    if one == other {
        return None;
    }
    Some((one.min(other), one.max(other)))
}
