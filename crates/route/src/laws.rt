//! The items on the lanes at every point of every run, and on the lanes of every router.

ghost use Rattle.std.specs.Prelude.{◌≡◌, ℕ, ◌<◌, ◌⊎◌, true, List, ◌++◌, map};
ghost use Rattle.lane.specs.declared.item.Item.{Item};
ghost use Rattle.lane.specs.Items.{has_mark, IsBeginning};
ghost use Rattle.dag.specs.declared.records.Placed.{Placed};
ghost use Rattle.route.specs.Sending.{put_on};
ghost use Rattle.route.specs.Routed.{IsRising, in_hand, IsRouted, HasRouted, HasShare, HasWholeShare, TakesShare};
ghost use Rattle.route.specs.Routers.{RouterState, lane_count, HasSent, IsUnchanged};
ghost use Rattle.route.specs.Runs.{Event, IsRun, put_event, sending, put_list, taken_list};
ghost use Rattle.route.specs.RouterRuns.{run_of, HavePuts, AreTakesOfRun, TakeWholeShares};
ghost use Rattle.route.specs.RouterRuns.{OfRuns, AtLanesOfRuns, OfRouters, AtLanesOfRouters};

/// For every run of lanes. Each prefix of a run is a run, so this is true at every point. One list was routed; a lane
/// has its share of it, or lacks only the record that is being sent. A lane with the mark has its whole share. The
/// items taken from a lane are a prefix of the items put.
pub fn runs()
    // all that is sent, put by put, is a run, so there are runs of every list of records
    ensures some { (n : ℕ) (w : List Placed) → 0 < n → IsRising w → IsRun n w (map put_event (sending n w)) }
    ensures points { (n : ℕ) (w : List Placed) (before after : List Event) → IsRun n w (before ++ after)
        → IsRun n w before }
    ensures routed { OfRuns (λ n w es. HasRouted n (put_list es) w) }
    ensures shares { AtLanesOfRuns (λ n k u es. HasShare n (put_list es) u k) }
    ensures marks { AtLanesOfRuns (λ n k u es. has_mark (put_list es k) ≡ true → HasWholeShare n (put_list es) u k) }
    ensures taken { OfRuns (λ n w es. (k : ℕ) → IsBeginning (taken_list es k) (put_list es k)) }
    // the items taken are a prefix of the lane's share, and with the mark the whole share
    ensures headline { AtLanesOfRuns (λ n k u es. TakesShare n u k (taken_list es k) (put_list es k)) }
    ensures ended { (n k : ℕ) (w : List Placed) (before after : List Event) → IsRun n w (before ++ after) → k < n
        → has_mark (taken_list before k) ≡ true → put_list (before ++ after) k ≡ taken_list before k }
    // the marks come last, so with the mark the items taken are the lane's share of all records
    ensures whole { OfRuns TakeWholeShares }
{}

/// For every router that was offered records whose places ascend: the same; and the routed list is the records sent
/// whole, or these and the pending record.
pub fn routers()
    // what it has sent so far is a run of its lanes, an event for each put
    ensures run { (r : RouterState) (w : List Placed) → IsRising (in_hand w r.pending)
        → IsRun (lane_count r) (in_hand w r.pending) (run_of w r) }
    ensures puts { (r : RouterState) (w : List Placed) → HasSent w r → HavePuts r (run_of w r) }
    // where nothing was put the run is the same
    ensures still { (old new : RouterState) (w : List Placed) → IsUnchanged old new → run_of w new ≡ run_of w old }
    ensures routed { OfRouters (λ r w. HasRouted (lane_count r) (put_on r.puts) (in_hand w r.pending)) }
    ensures list { OfRouters (λ r w. (u : List Placed) → IsRouted (lane_count r) (put_on r.puts) u
        → (u ≡ w) ⊎ (u ≡ in_hand w r.pending)) }
    ensures whole { (r : RouterState) (w u : List Placed) → HasSent w r → IsRising w
        → r.pending ≡ None → IsRouted (lane_count r) (put_on r.puts) u → u ≡ w }
    ensures shares { AtLanesOfRouters (λ n on k u. HasShare n on u k) }
    ensures marks { AtLanesOfRouters (λ n on k u. has_mark (on k) ≡ true → HasWholeShare n on u k) }
    // what the takers took, a prefix of what was put on each lane, was taken in a run of these lanes
    ensures takes { OfRouters AreTakesOfRun }
    // with the receipt of lane k the items that its taker took are a prefix of the items put
    ensures headline { AtLanesOfRouters (λ n on k u. (taken : List (Item Placed)) → IsBeginning taken (on k)
        → TakesShare n u k taken (on k)) }
{}
