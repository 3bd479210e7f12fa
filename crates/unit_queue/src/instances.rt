//! A lane for which the contract of `Lane::send` excludes a wrong body. The function does nothing at run time.
ghost use Rattle.std.specs.Prelude.{◌≡◌, ◌⊎◌, [], true};
ghost use Rattle.atomic_table.specs.Seated.{TableId};
ghost use Rattle.unit_queue.specs.Lanes.{is_closed, IsFull, send_end};

/// The first note that is sent on a new lane isn't refused: the lane is neither closed, nor did two items wait in it. A
/// body that always refuses doesn't meet the contract.
pub fn a_new_lane_refuses_no_note()
    ensures { (id : TableId) → ¬ ((is_closed [] ≡ true) ⊎ IsFull (send_end id [] [])) }
{}
