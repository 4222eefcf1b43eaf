// Running a flat form on a stack.
ghost use Rattle.std.specs.Prelude.{◌≡◌};
ghost use Rattle.stack.specs.Meaning.{holds};
ghost use Rattle.stack.specs.Flat.{runs, after_item};
ghost use Rattle.stack.specs.Meant.{item_meant};

use crate::Stack;
use crate::items::Item;

impl Stack {
    // Is the top true?
    fn top_holds(&self) -> bool
        ensures { result ≡ holds self.now }
    {
        self.value_at(0) > 0
    }

    // The stack after an item.
    fn step(&mut self, item: Item)
        ensures { self.new ≡ after_item (item_meant item) self.old }
    {
        match item {
            Item::Op(op) => self.act(op, false),
            Item::Unless(_) => self.discard(1),
            Item::Jump(_) => {}
        }
    }

    // What the words leave of the stack.
    pub fn run(&mut self, words: &[i32])
        ensures { self.new ≡ runs words.now self.old }
    {
        let mut at: usize = 0;
        'items: while let Some(item) = Item::read(&words[at..]) {
            let moves = item.moves(self.top_holds());
            self.step(item);
            if words.len() - at < moves {
                return;
            }
            at += moves;
        }
    }
}
