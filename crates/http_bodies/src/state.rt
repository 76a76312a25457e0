ghost use Rattle.std.specs.Prelude.{◌≡◌};
ghost use Rattle.http_bodies.specs.Stage.{IsSound, begun};

use crate::stage::Stage;
use http_head::BodyKind;
use std::marker::Model;

/// The most bytes that a body has.
pub const MAX_BODY: u64 = 67_108_864;

/// What is left of a body.
#[derive(Debug, Drop)]
pub struct BodyState {
    stage: Stage,
}

impl Model for BodyState {
    ghost use Rattle.http_bodies.specs.Stage.{IsSound};
    ghost use Rattle.http_bodies.specs.declared.stage.Stage.{Stage};

    ghost Value = { Stage };

    ghost view = { λ body. body.stage };

    ghost invariant = { λ body. IsSound body.stage };
}

impl BodyState {
    /// A body of that kind of which nothing was read, of at most 67,108,864 bytes. A missing one is empty.
    pub fn new(kind: BodyKind) -> BodyState
        ensures { result ≡ begun kind 67108864 }
    {
        BodyState::within(kind, MAX_BODY)
    }

    /// The same of at most so many bytes.
    pub fn within(kind: BodyKind, limit: u64) -> BodyState
        ensures { result ≡ begun kind limit }
    {
        let stage = match kind {
            BodyKind::Missing => Stage::Length(0),
            BodyKind::Length(count) if count > limit => Stage::Over,
            BodyKind::Length(count) => Stage::Length(count),
            BodyKind::Chunked => Stage::Line(limit),
        };
        BodyState { stage }
    }

    pub(crate) fn stage(&self) -> Stage
        ensures is { result ≡ self.now }
        ensures sound { IsSound result }
    {
        self.stage
    }

    pub(crate) fn go(&mut self, stage: Stage)
        requires { IsSound stage }
        ensures { self.new ≡ stage }
    {
        self.stage = stage;
    }
}
