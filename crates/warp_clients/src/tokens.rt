//! Tokens that change while clients are there: whose token one has, and others in the place of those that there were.
ghost use Rattle.std.specs.Prelude.{◌≡◌, List, None, Some};
ghost use Rattle.warp_hub.specs.declared.tokens.Entry.{Entry};
ghost use Rattle.warp_replica.specs.Answered.{facts_of};
ghost use Rattle.warp_clients.specs.Steps.{StepDoes};
ghost use Rattle.warp_clients.specs.Steps as steps;

use crate::clients::Clients;
use crate::crowd::Crowd;
use crate::places::Places;
use crate::saying::Saying;
use warp_hub::{Facts, Tokens, digest_of, read_token};
use warp_line::Timeline;
use warp_record::Fed;
use warp_watch::ClientId;

/// The digest of the token that this line says, if it says one that there is.
pub(crate) fn digest_said(facts: &Facts, said: &Saying, fed: &Fed) -> Option<[u8; 32]> {
    if facts.tokens.is_none() || !matches!(said, Saying::Token(Some(_))) {
        return None;
    }
    let Fed::Text(text) = fed else {
        return None;
    };
    let token = read_token(text)?;
    Some(digest_of(token))
}

impl Places {
    /// The digest of the last token that the client said, of those that there were.
    fn token(&self, who: ClientId) -> Option<[u8; 32]> {
        let at = self.find(who)?;
        self.clients.get(at)?.token
    }
}

impl Crowd {
    /// These are the tokens from now on, where there are tokens; else nothing changes.
    fn take_tokens(&mut self, tokens: Tokens)
        ensures some { (before : List Entry) → self.old.common.facts.tokens ≡ Some before → self.new ≡ record self.old {
          common = record self.old.common { facts = record self.old.common.facts { tokens = Some tokens } };
        } }
        ensures none { self.old.common.facts.tokens ≡ None → self.new ≡ self.old }
    {
        if self.facts.tokens.is_none() {
            return;
        }
        self.facts.tokens = Some(tokens);
    }
}

impl<T: Timeline> Clients<T> {
    /// The digest of the last token that a client said by a line, of those that there were: also while its answer waits.
    pub fn token(&self, who: ClientId) -> Option<[u8; 32]> {
        self.crowd.places.token(who)
    }

    /// These are the tokens from now on, where there were tokens; where there were none nothing changes, and everybody may
    /// send everything still. What clients may send that said one before stays as it is.
    pub fn take_tokens(&mut self, tokens: Tokens)
        ensures some { (before : List Entry) → self.old.crowd.common.facts.tokens ≡ Some before →
            StepDoes (facts_of T.settled T.refused T.floor T.SLACK) (steps.Renews tokens) self.old self.new }
        ensures none { self.old.crowd.common.facts.tokens ≡ None → self.new ≡ self.old }
    {
        self.crowd.take_tokens(tokens);
    }
}
