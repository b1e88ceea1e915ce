// What it means that a contract determines what a function gives back. There is no code here.
#![tactic(auto)]
