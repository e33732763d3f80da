//! Worked values: what a seed gives, reckoned outside of the proofs.
ghost use Rattle.std.specs.Prelude.{◌≡◌, false, [], ◌∷◌, None, codes};
ghost use Rattle.cmd_build.specs.declared.command.Act.TheVariants as work;
ghost use Rattle.member_hall.specs.declared.act.Act.TheVariants as act;
ghost use Rattle.soak_plan.specs.Commands.{commands_of, id_of, set_of};
ghost use Rattle.soak_plan.specs.Draws.{drawn, given};
ghost use Rattle.soak_plan.specs.Plans.{plan_of, planned};

/// The first states, numbers, acts and commands of some seeds.
pub fn seeds_give_these()
    ensures first_state { drawn 1 ≡ 7806831264735756412 }
    ensures first_number { given 1 ≡ 908834774 }
    ensures second_number { given (drawn 1) ≡ 1093944153 }
    ensures first_word_of_seed_one { drawn 2 ≡ 14170967488582549417 }
    ensures plan { plan_of 1 2 ≡ planned 54 (act.Late 0 30) ∷ planned 116 (act.Mute 0) ∷ [] }
    ensures plan_with_an_election { plan_of 2 3 ≡ planned 60 (act.Hold 0 3) ∷ planned 96 (act.Elect 1) ∷ planned 96 (act.Follow 0)
        ∷ planned 135 (act.Elect 2) ∷ planned 135 (act.Follow 1) ∷ [] }
    ensures commands { commands_of 4
        ≡ record { lane = 1; db = None; coll = codes "s"; act = work.Insert (id_of 0) }
        ∷ record { lane = 1; db = None; coll = codes "s"; act = work.Update (id_of 1) (set_of 1) false false }
        ∷ record { lane = 1; db = None; coll = codes "s"; act = work.Delete (id_of 2) false }
        ∷ record { lane = 1; db = None; coll = codes "s"; act = work.Find (id_of 3) None } ∷ [] }
{}
