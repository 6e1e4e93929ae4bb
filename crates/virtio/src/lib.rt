// VIRTIO 1.1's packed virtqueue, and that the leaves are the document's: theory alone, no functions.

#![tactic(auto)]
