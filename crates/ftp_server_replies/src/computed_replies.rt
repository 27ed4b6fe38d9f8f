// Replies with computed parts, as they are owed (RFC 959, section 4.2; RFC 2428, section 3; RFC 3659, section 7).
ghost use Rattle.std.specs.Prelude.{◌≡◌, ◌+◌, ◌*◌, ◌/◌, ◌≤◌, ◌++◌, [], ◌∷◌, codes, decimal, flat_map, if◌then◌else◌, length};
ghost use Rattle.ftp_ends.specs.Reply.{reply_octets, reply_of};
ghost use Rattle.ftp_endpoint.specs.Written.{six_text};
ghost use Rattle.ftp_nvt.specs.Lines.{written_octet};
ghost use Rattle.ftp_facts.specs.Name.{fact_word};
ghost use Rattle.ftp_server_model.specs.Entries.{chosen_text, fact_text, feature_text, features_text, is_any_chosen};
ghost use Rattle.ftp_server_model.specs.Replies.{chosen_reply, features_reply, extended_reply_text, here_text, made_text, mark_reply, passive_reply_text};

use crate::fixed_replies::FIXED_LIMIT;
use crate::output::Output;
use ftp_endpoint::{Endpoint, write_six};
use ftp_facts::{FactName, Facts};
use ftp_path::Path;
use ftp_server_model::{FREE_ROOM, OUTPUT_ROOM};
use ftp_settings::MARKER_LIMIT;
use std::alloc::Allocator;

impl<A: Allocator + Copy> Output<A> {
    /// Owes the reply to PWD (RFC 959, appendix II).
    pub fn put_here<B: Allocator + Copy>(&mut self, path: &Path<B>)
        requires { length self.old + FREE_ROOM ≤ OUTPUT_ROOM }
        // Witness: equations; `put_listed` writes as MLSD does (`write_entry_line` of `ftp_facts`), into `Output` as a sink.
        ensures { self.new ≡ self.old ++ reply_octets (reply_of 257 (here_text path.now)) }
    {
        self.put(b"257 \"");
        self.put_doubled(path.text());
        self.put(b"\" is the current directory\r\n");
    }

    /// Owes the reply that a directory was made (RFC 959, appendix II).
    pub fn put_made<B: Allocator + Copy>(&mut self, path: &Path<B>)
        requires { length self.old + FREE_ROOM ≤ OUTPUT_ROOM }
        // Witness: as of `put_here`.
        ensures { self.new ≡ self.old ++ reply_octets (reply_of 257 (made_text path.now)) }
    {
        self.put(b"257 \"");
        self.put_doubled(path.text());
        self.put(b"\" created\r\n");
    }

    /// Owes the reply to an accepted REST (RFC 3659, section 5).
    pub fn put_restarting(&mut self, place: u64)
        requires { length self.old + FREE_ROOM ≤ OUTPUT_ROOM }
        // Witness: as of `put_here`.
        ensures { self.new ≡ self.old ++ reply_octets (reply_of 350 (codes "Restarting at " ++ decimal place)) }
    {
        self.put(b"350 Restarting at ");
        self.put_number(place);
        self.put(b"\r\n");
    }

    /// Owes the reply to SIZE (RFC 3659, section 4).
    pub fn put_size(&mut self, size: u64)
        requires { length self.old + FREE_ROOM ≤ OUTPUT_ROOM }
        // Witness: as of `put_here`.
        ensures { self.new ≡ self.old ++ reply_octets (reply_of 213 (decimal size)) }
    {
        self.put(b"213 ");
        self.put_number(size);
        self.put(b"\r\n");
    }

    /// Owes the reply to MDTM: the fourteen digits of a moment (RFC 3659, section 3).
    pub fn put_stamp(&mut self, digits: &[u8; 14])
        requires { length self.old + FREE_ROOM ≤ OUTPUT_ROOM }
        // Witness: as of `put_here`.
        ensures { self.new ≡ self.old ++ reply_octets (reply_of 213 digits.now) }
    {
        self.put(b"213 ");
        self.put_text(digits);
        self.put(b"\r\n");
    }

    /// Owes the reply to EPSV (RFC 2428, section 3).
    pub fn put_extended(&mut self, port: u16)
        requires { length self.old + 512 ≤ OUTPUT_ROOM }
        // Witness: as of `put_here`.
        ensures { self.new ≡ self.old ++ reply_octets (reply_of 229 (extended_reply_text port)) }
    {
        self.put(b"229 Entering Extended Passive Mode (|||");
        self.put_number(u64::from(port));
        self.put(b"|)\r\n");
    }

    /// Owes the reply to PASV (RFC 959, section 4.1.2).
    pub fn put_passive(&mut self, endpoint: Endpoint)
        requires { length self.old + 512 ≤ OUTPUT_ROOM }
        // Witness: as of `put_here`.
        ensures { self.new ≡ self.old ++ reply_octets (reply_of 227 (passive_reply_text endpoint)) }
    {
        self.put(b"227 Entering Passive Mode (");
        self.put_six(endpoint);
        self.put(b")\r\n");
    }

    /// Owes the six numbers of an endpoint of IPv4.
    fn put_six(&mut self, endpoint: Endpoint)
        requires { length self.old + 448 ≤ OUTPUT_ROOM }
        ensures octets { self.new ≡ self.old ++ flat_map written_octet (six_text endpoint) }
        ensures room { length self.new ≤ length self.old + 256 }
    {
        if let Some(text) = write_six(endpoint) {
            self.put_text(text.as_slice());
        }
    }

    /// Owes the reply to a marker of an upload: the marker, and how many octets of the file are held (RFC 959, section 3.5).
    pub fn put_mark(&mut self, theirs: &[u8], held: u64)
        requires room { length self.old + 2 * MARKER_LIMIT + 2 * FIXED_LIMIT ≤ OUTPUT_ROOM }
        requires marker { length theirs.now ≤ MARKER_LIMIT }
        ensures octets { self.new ≡ self.old ++ reply_octets (mark_reply theirs.now held) }
        // Witness of room: follows from `octets`; it spares callers the length.
        ensures room { length self.new ≤ length self.old + 2 * MARKER_LIMIT + FIXED_LIMIT }
    {
        self.put(b"110 MARK ");
        self.put_text(theirs);
        self.put(b" = ");
        self.put_number(held);
        self.put(b"\r\n");
    }

    /// Owes the reply to FEAT, with `*` behind each fact in force (RFC 2389, section 3.2; RFC 3659, section 7.8).
    pub fn put_features(&mut self, facts: Facts)
        requires { length self.old + FREE_ROOM ≤ OUTPUT_ROOM }
        // Witness: as of `put_here`.
        ensures { self.new ≡ self.old ++ reply_octets (features_reply facts) }
    {
        self.put(b"211-Features\r\n EPRT\r\n EPSV\r\n MDTM\r\n MLST ");
        self.put_feature_facts(facts);
        self.put(b"\r\n REST STREAM\r\n SIZE\r\n UTF8\r\n211 End\r\n");
    }

    /// Owes all facts, as FEAT has them.
    fn put_feature_facts(&mut self, facts: Facts)
        requires { length self.old + FREE_ROOM ≤ OUTPUT_ROOM + 2 * FIXED_LIMIT }
        ensures octets { self.new ≡ self.old ++ flat_map written_octet (features_text facts) }
        ensures room { length self.new ≤ length self.old + 2 * FIXED_LIMIT }
    {
        for name in FactName::ALL {
            self.put_feature(name, facts.has(name));
        }
    }

    /// Owes a fact of FEAT.
    fn put_feature(&mut self, name: FactName, chosen: bool)
        requires { length self.old + FREE_ROOM ≤ OUTPUT_ROOM + 4 * FIXED_LIMIT }
        ensures octets { self.new ≡ self.old ++ flat_map written_octet (feature_text (fact_word name) chosen) }
        ensures room { length self.new ≤ length self.old + FIXED_LIMIT / 2 }
    {
        self.put_text(name.word());
        self.put(if chosen {
            b"*;".as_slice()
        } else {
            b";".as_slice()
        });
    }

    /// Owes the reply to OPTS MLST: the facts that are now in force (RFC 3659, section 7.9).
    pub fn put_chosen(&mut self, facts: Facts)
        requires { length self.old + FREE_ROOM ≤ OUTPUT_ROOM }
        // Witness: as of `put_here`.
        ensures { self.new ≡ self.old ++ reply_octets (reply_of 200 (chosen_reply facts)) }
    {
        self.put(b"200 MLST OPTS");
        self.put_chosen_facts(facts);
        self.put(b"\r\n");
    }

    /// Owes a space and the facts in force, where there are some.
    fn put_chosen_facts(&mut self, facts: Facts)
        requires { length self.old + FREE_ROOM ≤ OUTPUT_ROOM + FIXED_LIMIT }
        ensures octets { self.new ≡ self.old ++ flat_map written_octet (if is_any_chosen facts then 32 ∷ chosen_text facts else []) }
        ensures room { length self.new ≤ length self.old + 4 * FIXED_LIMIT }
    {
        if !facts.has_any() {
            return;
        }
        self.put(b" ");
        self.put_facts(facts);
    }

    /// Owes the facts in force, each with a semicolon.
    fn put_facts(&mut self, facts: Facts)
        requires { length self.old + FREE_ROOM ≤ OUTPUT_ROOM + 2 * FIXED_LIMIT }
        ensures octets { self.new ≡ self.old ++ flat_map written_octet (chosen_text facts) }
        ensures room { length self.new ≤ length self.old + 2 * FIXED_LIMIT }
    {
        for name in FactName::ALL {
            self.put_fact(name, facts.has(name));
        }
    }

    /// Owes a fact, where it is in force.
    fn put_fact(&mut self, name: FactName, chosen: bool)
        requires { length self.old + FREE_ROOM ≤ OUTPUT_ROOM + 4 * FIXED_LIMIT }
        ensures octets { self.new ≡ self.old ++ flat_map written_octet (fact_text (fact_word name) chosen) }
        ensures room { length self.new ≤ length self.old + FIXED_LIMIT / 2 }
    {
        if chosen {
            self.put_text(name.word());
            self.put(b";");
        }
    }
}
