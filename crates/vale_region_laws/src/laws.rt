//! What every step on a world keeps: laws of the definitions, each the contract of a function that does nothing.

ghost use Rattle.std.specs.Prelude.{◌≡◌, ◌≢◌, ℕ, suc, List, [], ◌∷◌, None};
ghost use Rattle.vale_state_spec.specs.State.{State, Given, alone};
ghost use Rattle.vale_state_spec.specs.World.{Value, Own, Region, Freeze, Isolate, Object, World, Lives};
ghost use Rattle.vale_base.specs.declared.name.Kind.{Kind};
ghost use Rattle.vale_code.specs.Act.{step_of};
ghost use Rattle.vale_code.specs.Frames.{Frame, Config, Iterating, Looping, Alone};
ghost use Rattle.vale_code.specs.Loops.{iterate};
ghost use Rattle.vale_code.specs.Parts.{Parts};
ghost use Rattle.vale_code.specs.Run.{start};
ghost use Rattle.vale_region_laws.specs.Alone.{IsItem};
ghost use Rattle.vale_region_laws.specs.Asks.{AsksOf};
ghost use Rattle.vale_region_laws.specs.Configs.{ConfigFits, NextFits};
ghost use Rattle.vale_region_laws.specs.Heights.{Full, LosesNothing, Stacked};
ghost use Rattle.vale_region_laws.specs.Regions.{At, Waiting, Homes, InRegion, Below, Holder, Scene, Fits, Kept, scene, holding, Each, Leaves, HoldsNoIso};
ghost use Rattle.vale_region_laws.specs.Steps.{Step, Run, IsElsewhere, KeptWaiting};

/// Each step on a world keeps the invariant.
pub fn steps_keep_regions()
    ensures { (s t : Scene) → Step s t → Fits s → Fits t }
{}

/// It holds before the first step.
pub fn a_world_begins()
    ensures { Fits (scene (λ n. At 0) [] [] 0) }
{}

/// What is frozen isn't changed, while the freeze is open.
pub fn frozen_stays()
    ensures fits { (a : ℕ) (s t : Scene) → Run a s t → Fits s → Fits t }
    ensures kept { (a : ℕ) (s t : Scene) → Run a s t → Fits s → Kept a s t }
{}

/// So what an `&imm` was found to lead to stays alive.
pub fn seen_alive_stays_alive()
    ensures { (a n : ℕ) (s t : Scene) → Run a s t → Fits s → Below s.home s.world a n → Below t.home t.world a n }
{}

/// The object of an owner that may be destroyed lies in the innermost region, and is the root of no isolate.
pub fn what_dies_is_no_root()
    ensures inside { (home : Homes) (hs : List Holder) (w : World) (c n : ℕ) (o : Object)
        → Lives w n o → Fits (scene home (holding c (Own n) ∷ hs) w c) → o.region ≡ Freeze c }
    ensures no_root { (home : Homes) (hs : List Holder) (w : World) (c n : ℕ) (o : Object)
        → Lives w n o → Fits (scene home (holding c (Own n) ∷ hs) w c)
        → (k : ℕ) (p : Object) → Lives w k p → p.region ≢ Isolate n }
{}

/// No step but its arrival touches an isolate that waits: iterations don't touch one another's.
pub fn what_waits_stays()
    ensures { (r : ℕ) (s t : Scene) (step : Step s t) → IsElsewhere r s t step → s.home r ≡ Waiting
        → InRegion s.world r (Isolate r) → Fits s → KeptWaiting r s t }
{}

/// A step that lets no owner go loses no object.
pub fn nothing_gets_lost()
    ensures { (s t : Scene) (step : Step s t) → LosesNothing s t step → Fits s → Full s → Full t }
{}

/// Where types are kept and nothing was lost, no isolate stands in a region that is kept with a root under which none stands.
pub fn a_kept_region_is_flat()
    ensures { (height : Kind → ℕ) (most : ℕ) (home : Homes) (hs : List Holder) (w : World) (c n : ℕ) (o : Object)
        → Lives w n o → height o.kind ≡ 0 → Each (Leaves c) hs → Fits (scene home (holding (suc c) (Own n) ∷ hs) w (suc c))
        → Full (scene home (holding (suc c) (Own n) ∷ hs) w (suc c))
        → Stacked height most (scene home (holding (suc c) (Own n) ∷ hs) w (suc c)) → HoldsNoIso w (Freeze (suc c)) }
{}

/// Every run of every code begins with a configuration that keeps the invariant.
pub fn a_run_begins()
    ensures { (code : Parts) (input : Given) (ticks : ℕ) → NextFits code (start code input ticks) }
{}

/// Every step of a configuration keeps it, where the instruction's operands are as certificates ask.
pub fn every_step_keeps_regions()
    ensures { (code : Parts) (last : Config → State) (top : Frame) (below : List Frame) (s : State)
        (x : ConfigFits code (record { top = top; below = below; state = s }))
        → AsksOf code top below s x → NextFits code (step_of code last top below s) }
{}

/// So does an iteration by itself, from what its loop holds.
pub fn an_iteration_begins_alone()
    ensures { (code : Parts) (f : Iterating) (below : List Frame) (s : State)
        → ConfigFits code (record { top = Looping f; below = below; state = s })
        → (k : ℕ) (v : Value) → IsItem f.items v → NextFits code (iterate code f k v (Alone None ∷ below) (alone s)) }
{}
