// What was promised to those who asked, as theorems about the requests. There is no code here.
#![tactic(auto)]
