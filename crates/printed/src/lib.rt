// What joins the printout to the promise: an accepted parse of a pack that passes prints.
#![tactic(auto)]
