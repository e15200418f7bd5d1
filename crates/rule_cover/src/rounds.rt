//! The rounds of asking: one piece after the other is taken off the list, and put back where it stays.

ghost use Rattle.std.specs.Prelude.{◌≡◌, ◌<◌, ◌++◌, ◌∷◌, [], length, IfOk};
ghost use Rattle.rule_cover.specs.Rounds.{again_if};

use rule_model::Dep;
use schema_core::List;
use std::alloc::AllocError;
use std::marker::Model;

/// The pieces that stay so far, and behind them those that weren't asked yet.
#[derive(Drop)]
pub struct Round {
    pieces: List<Dep>,
    stay: usize,
}

impl Model for Round {
    ghost use Rattle.std.specs.Prelude.{◌≤◌, drop, length, take};
    ghost use Rattle.rule_cover.specs.Rounds.{Halves};

    ghost Value = { Halves };

    ghost view = { λ r. record { before = take r.stay r.pieces; after = drop r.stay r.pieces } };

    ghost invariant = { λ r. r.stay ≤ length r.pieces };
}

/// The first piece that wasn't asked yet, and beside it the others.
#[derive(Drop)]
pub struct Turn {
    others: List<Dep>,
    stay: usize,
    piece: Dep,
}

impl Model for Turn {
    ghost use Rattle.std.specs.Prelude.{◌≤◌, drop, length, take};
    ghost use Rattle.rule_cover.specs.Rounds.{AskedPiece};

    ghost Value = { AskedPiece };

    ghost view = { λ q. record { before = take q.stay q.others; piece = q.piece; after = drop q.stay q.others } };

    ghost invariant = { λ q. q.stay ≤ length q.others };
}

impl Round {
    pub fn first(pieces: List<Dep>) -> Round
        ensures { result ≡ record { before = []; after = pieces } }
    {
        Round { pieces, stay: 0 }
    }

    /// How many pieces stay so far.
    #[tactic(auto, using(crate::proofs::Turns::stay_is))]
    pub fn count(&self) -> usize
        ensures { result ≡ length self.now.before }
    {
        self.stay
    }

    pub fn ask(self) -> Turn
        requires { 0 < length self.after }
        ensures { self ≡ record { before = result.before; after = result.piece ∷ result.after } }
    {
        let mut others = self.pieces.into_vec();
        let piece = others.remove(self.stay);
        Turn {
            others: List::from(others),
            stay: self.stay,
            piece,
        }
    }
}

impl Turn {
    pub fn others(&self) -> &List<Dep>
        ensures { result.now ≡ self.now.before ++ self.now.after }
    {
        &self.others
    }

    pub fn piece(&self) -> &Dep
        ensures { result.now ≡ self.now.piece }
    {
        &self.piece
    }

    /// The next round, with the piece among those before where it stays.
    pub fn settle(self, stays: bool) -> Result<Round, AllocError>
        ensures { IfOk result (λ round. round ≡ record { before = self.before ++ again_if stays self.piece; after = self.after }) }
    {
        if stays {
            self.keep()
        } else {
            Ok(self.leave_out())
        }
    }

    fn leave_out(self) -> Round
        ensures { result ≡ record { before = self.before; after = self.after } }
    {
        Round {
            pieces: self.others,
            stay: self.stay,
        }
    }

    #[tactic(auto, using(crate::proofs::Turns::put_back))]
    fn keep(self) -> Result<Round, AllocError>
        ensures { IfOk result (λ round. round ≡ record { before = self.before ++ self.piece ∷ []; after = self.after }) }
    {
        let mut pieces = self.others.into_vec();
        pieces.insert(self.stay, self.piece)?;
        Ok(Round {
            pieces: List::from(pieces),
            stay: self.stay + 1,
        })
    }
}
