// The numbers of the arctangent's table and how near its rows are to Euler's series: definitions and laws alone.
#![tactic(auto)]
