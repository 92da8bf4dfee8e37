// No code. The commission's three demands, sentence by sentence, from the public contracts; and by computation, about
// the definitions of all levels: the starred cases of document 01, "Road A at its edges", the values of document 02, an
// input that meets each hypothesis of the public contracts, and an input for each number of each call's refusals.
#![tactic(auto)]
