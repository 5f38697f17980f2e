ghost use Rattle.std.specs.Prelude.{◌≡◌, ◌≢◌, ◌↔◌, ◌≤◌, ℕ, List, length, All, None};
ghost use Rattle.tzif_reader.specs.Layout.{IsZoneFile};
ghost use Rattle.tzif_reader.specs.Cut.{lists_of};
ghost use Rattle.tzif_reader.specs.Faults.{first_fault};
ghost use Rattle.tzif_reader.specs.Slim.{PlanLists, FitsFile, IsSoundPlan, slim_of};
ghost use Rattle.tzif_reader.specs.Slim.{zone_of_plan};
ghost use Rattle.tzif_reader.specs.declared.zone_file.ZoneFile.{ZoneFile as Zone};
ghost use Rattle.tzif_reader.specs.declared.zone_file.TheConstants.{MOST_BYTES};

/// A list of bytes is a zone file exactly when it has no fault, and then it is the file of only one
/// zone.
#[tactic(auto, using(crate::proofs::lemmas::Whole::exactly_one))]
pub fn one_zone_file()
    ensures exactly { (bytes : List ℕ)
        → ((z : Zone) × IsZoneFile bytes z) ↔ (first_fault bytes ≡ None) }
    ensures one { (bytes : List ℕ) (y z : Zone) → IsZoneFile bytes y → IsZoneFile bytes z → y ≡ z }
{}

/// A zone file has at most [`MOST_BYTES`](crate::MOST_BYTES) leap lines.
pub fn leap_lines_fit()
    ensures { (bytes : List ℕ) (z : Zone) → IsZoneFile bytes z → length z.leaps ≤ MOST_BYTES }
{}

/// A slim file reads back as its plan if the plan's numbers fit into a file. The fields that its
/// counts cut out of its bytes are the moments, numbers, types, leap lines and footer of the plan.
/// So a slim file without fault is the file of that zone. It has no fault exactly when the plan is
/// sound.
#[tactic(auto, using(crate::proofs::SlimCuts::slim_reads, crate::proofs::SlimCuts::slim_zone, crate::proofs::SlimSound::sound_plans))]
pub fn slim_file_reads_back()
    ensures reads { (plan : PlanLists) → FitsFile plan → All (λ byte. byte ≢ 10) plan.footer
        → lists_of (slim_of plan) ≡ zone_of_plan plan }
    ensures zone { (plan : PlanLists) → FitsFile plan → first_fault (slim_of plan) ≡ None
        → IsZoneFile (slim_of plan) (zone_of_plan plan) }
    ensures sound { (plan : PlanLists) → FitsFile plan
        → (first_fault (slim_of plan) ≡ None) ↔ IsSoundPlan plan }
{}
