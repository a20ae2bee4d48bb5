// The promises, as statements about the definitions that the calls' contracts cite. There is no function here.
#![tactic(auto)]
