// An entry goes down in a heap, from lesser child to lesser child.
ghost use Rattle.std.specs.Prelude.{◌≡◌, ◌+◌, ◌*◌, ◌<◌, ◌≤◌, length};
ghost use Rattle.queue.specs.Heap.{sifted, lesser, sink};

use crate::Queue;

impl Queue<'_> {
    // The place of the lesser child of a place that has a child.
    fn lesser_child(&self, place: usize) -> usize
        requires { (2 * place + 1 < self.now.len) × (self.now.len ≤ length self.now.words.now) }
        ensures { result ≡ lesser self.now.words.now self.now.len place }
    {
        let left = 2 * place + 1;
        let right = left + 1;
        if right < self.len && self.words[right] < self.words[left] {
            right
        } else {
            left
        }
    }

    // Puts `coded` in at the free first place and lets it go down. Returns the number of lesser children looked at.
    pub(crate) fn sift_down(&mut self, coded: u64) -> u32
        requires { (0 < length self.old.words.now) × (self.old.len ≤ length self.old.words.now) }
        ensures same_reference { self.new.words.ghost_name ≡ self.old.words.ghost_name }
        ensures words { sifted self.new.words.now result ≡
            sink self.old.len self.old.words.now self.old.len 0 coded 0 }
        ensures len { self.new.len ≡ self.old.len }
    {
        let parents = self.len / 2;
        let mut looks = 0;
        // The free place doubles at each look, so no range counts it.
        let mut free = 0;
        while free < parents {
            let child = self.lesser_child(free);
            looks += 1;
            if coded <= self.words[child] {
                break;
            }
            self.words[free] = self.words[child];
            free = child;
        }
        self.words[free] = coded;
        looks
    }
}
