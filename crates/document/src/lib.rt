// What the ends write, read and count is VIRTIO 1.1's: theory alone, no functions.

#![tactic(auto)]
