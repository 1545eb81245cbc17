// General laws that know nothing of the planner; all of them stand in specs/.

#![tactic(auto)]
