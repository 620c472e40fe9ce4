// An entry goes up in a heap, from parent to parent.
ghost use Rattle.std.specs.Prelude.{◌≡◌, ◌<◌, length};
ghost use Rattle.queue.specs.Heap.{sifted, pushed};

use crate::Queue;

impl Queue<'_> {
    // Puts `coded` in behind the entries, without counting it, and lets it go up. Returns the number of parents looked at.
    pub(crate) fn sift_up(&mut self, coded: u64) -> u32
        requires { self.old.len < length self.old.words.now }
        ensures same_reference { self.new.words.ghost_name ≡ self.old.words.ghost_name }
        ensures words { sifted self.new.words.now result ≡
            pushed self.old.words.now self.old.len coded }
        ensures len { self.new.len ≡ self.old.len }
    {
        let mut looks = 0;
        // The free place halves at each look, so no range counts it.
        let mut free = self.len;
        while free > 0 {
            let parent = (free - 1) / 2;
            looks += 1;
            if coded >= self.words[parent] {
                break;
            }
            self.words[free] = self.words[parent];
            free = parent;
        }
        self.words[free] = coded;
        looks
    }
}
