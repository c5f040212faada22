// One law for the four cycles that go in by depths, G84, G86, G87 and G88: the depths add up to the stroke. (02, request 9.) It has no code: its definitions are in specs/, its proof in proofs/.
#![tactic(auto)]
