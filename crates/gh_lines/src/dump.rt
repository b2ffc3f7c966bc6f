//! What a dump of a heap lists, a line each, and what is told of a text that is a dump.

ghost use Rattle.std.specs.Prelude.{◌≡◌, ◌+◌, ◌<◌, ◌≤◌, ◌++◌, codes, length};
ghost use Rattle.gh_lines.specs.Dump.{field_line, global_line, object_by_global_line, object_by_parent_line, object_name, object_words, reachable_line, total_line};

use crate::LineBuf;
use gh_base::Name;
use gh_script::Script;

impl LineBuf {
    /// `global k ref X`: global `k` holds a reference to the object.
    pub fn global(&mut self, script: &Script, k: u32, object: Name)
        requires { object.g < length script.now.goroutines }
        ensures { self.new ≡ global_line script.now k object }
    {
        self.begin(b"global ");
        self.put_number(u64::from(k));
        self.put(b" ref ");
        self.put_name(script, object);
        self.put(b"\n");
    }

    /// `object X bytes B rank r global k`: an object of so many bytes, which global `k` holds.
    pub fn object_by_global(&mut self, script: &Script, object: Name, bytes: u64, rank: u32, k: u32)
        requires { object.g < length script.now.goroutines }
        ensures { self.new ≡ object_by_global_line script.now object bytes rank k }
    {
        self.begin_object(script, object, bytes, rank);
        self.put(b" global ");
        self.put_number(u64::from(k));
        self.put(b"\n");
    }

    /// `object X bytes B rank r parent Y field i`: an object of so many bytes, which field `i` of its
    /// parent holds.
    pub fn object_by_parent(
        &mut self,
        script: &Script,
        object: Name,
        bytes: u64,
        rank: u32,
        parent: Name,
        i: u32,
    )
        requires object { object.g < length script.now.goroutines }
        requires parent { parent.g < length script.now.goroutines }
        ensures { self.new ≡ object_by_parent_line script.now object bytes rank parent i }
    {
        self.begin_object(script, object, bytes, rank);
        self.put(b" parent ");
        self.put_name(script, parent);
        self.put(b" field ");
        self.put_number(u64::from(i));
        self.put(b"\n");
    }

    /// `field i ref X`: field `i` of the object whose line stands last holds a reference to the object.
    pub fn field(&mut self, script: &Script, i: u32, object: Name)
        requires { object.g < length script.now.goroutines }
        ensures { self.new ≡ field_line script.now i object }
    {
        self.begin(b"field ");
        self.put_number(u64::from(i));
        self.put(b" ref ");
        self.put_name(script, object);
        self.put(b"\n");
    }

    /// `total N bytes B`: how many objects are listed, and the bytes of all.
    pub fn total(&mut self, objects: u64, bytes: u64)
        ensures { self.new ≡ total_line objects bytes }
    {
        self.begin(b"total ");
        self.put_number(objects);
        self.put(b" bytes ");
        self.put_number(bytes);
        self.put(b"\n");
    }

    /// `reachable N`: a text that is a dump, of so many objects.
    pub fn reachable(&mut self, objects: u32)
        ensures { self.new ≡ reachable_line objects }
    {
        self.begin(b"reachable ");
        self.put_number(u64::from(objects));
        self.put(b"\n");
    }

    /// Begins an object's line with what each has, whatever holds it: 97 bytes at most.
    fn begin_object(&mut self, script: &Script, object: Name, bytes: u64, rank: u32)
        requires { object.g < length script.now.goroutines }
        ensures text { self.new ≡ object_words script.now object bytes rank }
        ensures short { length self.new ≤ 97 }
    {
        self.begin(b"object ");
        self.put_name(script, object);
        self.put(b" bytes ");
        self.put_number(bytes);
        self.put(b" rank ");
        self.put_number(u64::from(rank));
    }

    /// Appends the object's name, 37 bytes at most.
    fn put_name(&mut self, script: &Script, object: Name)
        requires stands { object.g < length script.now.goroutines }
        requires room { length self.old ≤ 128 }
        ensures text { self.new ≡ self.old ++ object_name script.now object }
        ensures short { length self.new ≤ length self.old + 37 }
    {
        self.put(script.name(object.g).as_bytes());
        self.put(b".");
        self.put_number(u64::from(object.k));
    }
}
