ghost use Rattle.std.specs.Prelude.{◌≡◌, ◌≤◌, length};
ghost use Rattle.dch_collision.specs.Hidden.{vote_for, AreVotes, missing, removed};

use dch_bits::Vote;

/// Votes so many times for Zero where a coded bit is sent, and so many times for One where it is not.
pub fn fill(sent_flags: &[bool], zeros: u32, ones: u32, votes: &mut [Vote])
    requires { length votes.old ≡ length sent_flags.now }
    ensures { AreVotes zeros ones sent_flags.now votes.new }
{
    for (t, sent) in sent_flags.iter().enumerate() {
        votes[t] = vote_for(zeros, ones, *sent);
    }
}

fn vote_for(zeros: u32, ones: u32, sent: bool) -> Vote
    ensures { result ≡ vote_for zeros ones sent }
{
    if sent {
        Vote { zeros, ones: 0 }
    } else {
        Vote { zeros: 0, ones }
    }
}

/// How many coded bits are not sent.
pub fn removed(sent_flags: &[bool]) -> u32
    requires { length sent_flags.now ≤ 1536 }
    ensures { result ≡ removed sent_flags.now }
{
    let mut count = 0;
    for sent in sent_flags {
        count += missing(*sent);
    }
    count
}

fn missing(sent: bool) -> u32
    ensures { result ≡ missing sent }
{
    if sent { 0 } else { 1 }
}
