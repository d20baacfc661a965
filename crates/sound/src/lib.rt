// What every call keeps of memory, and of what it refuses: proofs about states, and no code.
#![tactic(auto)]
