// Laws of no rule of ours: tests, lists, ranges, counting, orders, machines that halt. All of it stands in specs/ and proofs/.
#![tactic(auto)]
