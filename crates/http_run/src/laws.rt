ghost use Rattle.std.specs.Prelude.{◌≡◌, ℕ, Bool, List};
ghost use Rattle.http_head.specs.declared.head.Head.{Head};
ghost use Rattle.http_bodies.specs.declared.stage.Stage.{Stage};
ghost use Rattle.http_bodies.specs.Body.{BodyEnd, StandsFor};
ghost use Rattle.http_run.specs.Requests.{Outcome, Requests};

/// From one stage on bytes give one list of data and end one way.
pub fn a_body_is_read_one_way()
    ensures { (stage : Stage) (bytes one two : List ℕ) (end other : BodyEnd) → StandsFor stage bytes one end → StandsFor stage bytes two other → (one ≡ two) × (end ≡ other) }
{}

/// A list of bytes has one list of requests, and one rest behind them.
pub fn bytes_have_one_list_of_requests()
    ensures { (limit : ℕ) (early : Head → Bool) (closes : Outcome → Bool) (bytes : List ℕ) (one two : List Outcome) (rest other : List ℕ)
        → Requests limit early closes bytes one rest → Requests limit early closes bytes two other → (one ≡ two) × (rest ≡ other) }
{}
