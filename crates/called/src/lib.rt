// What callers of the register's functions may count on: every promise, said of what they learn from the contracts themselves.
#![tactic(auto)]
