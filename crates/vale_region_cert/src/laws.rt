//! What certified code keeps of regions: the contract of a function that does nothing.

ghost use Rattle.std.specs.Prelude.{◌≡◌, ◌≢◌, ℕ, List, true};
ghost use Rattle.vale_state_spec.specs.State.{State, Given};
ghost use Rattle.vale_state_spec.specs.World.{Freeze, Isolate, Object, Lives};
ghost use Rattle.vale_code.specs.Frames.{Config};
ghost use Rattle.vale_code.specs.Parts.{Parts};
ghost use Rattle.vale_code.specs.Run.{start};
ghost use Rattle.vale_cert.specs.Certificate.{Certified};
ghost use Rattle.vale_cert.specs.Input.{takes_input};
ghost use Rattle.vale_cert.specs.declared.facts.FuncFacts.{FuncFacts};
ghost use Rattle.vale_region_cert.specs.Joined.{RegionsFit};
ghost use Rattle.vale_region_cert.specs.Reached.{Reached, Ends};

/// Each configuration that a run of certified code comes to keeps the region invariant, its registers held as the
/// certificate knows of them. What ends in its next step lies in the innermost region, and is the root of no isolate.
pub fn certified_code_keeps_regions()
    ensures kept { (code : Parts) (facts : List FuncFacts) → Certified code facts → (input : Given) → takes_input code input ≡ true
        → (ticks : ℕ) (last : Config → State) (d : Config) → Reached code last (start code input ticks) d → RegionsFit code facts d }
    ensures innermost { (code : Parts) (facts : List FuncFacts) → Certified code facts → (input : Given) → takes_input code input ≡ true
        → (ticks : ℕ) (last : Config → State) (d : Config) → Reached code last (start code input ticks) d
        → (n : ℕ) (o : Object) → Ends code d n → Lives d.state.world n o → o.region ≡ Freeze d.state.regions }
    ensures no_root { (code : Parts) (facts : List FuncFacts) → Certified code facts → (input : Given) → takes_input code input ≡ true
        → (ticks : ℕ) (last : Config → State) (d : Config) → Reached code last (start code input ticks) d
        → (n : ℕ) (o : Object) → Ends code d n → Lives d.state.world n o
        → (k : ℕ) (p : Object) → Lives d.state.world k p → p.region ≢ Isolate n }
{}
