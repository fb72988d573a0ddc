// Document 01's starred cases, proved: one table under one statement. There is no code here.
#![tactic(auto)]
