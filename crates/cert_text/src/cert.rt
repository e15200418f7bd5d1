//! Certificates: a question, its answer, and the number of the line on which each part stands.

ghost use Rattle.std.specs.Prelude.{◌≡◌};
ghost use Rattle.cert_text.specs.Written.{IsWrittenCert};

use crate::names::NodeName;
use crate::tree_nodes::TreeNodes;
use rule_model::CfdDecl;
use std::marker::Model;
use text_lists::{Text, Texts};

/// Whether the rules of a table are consistent, or imply a dependency. It is a declaration without a name, of one attribute
/// on the right and one tableau row.
#[derive(Drop)]
pub enum Question {
    Consistent(Text),
    Implies(CfdDecl),
}

pub struct Asked {
    pub line: usize,
    pub question: Question,
}

// By hand, so that whatever drops what was asked calls this, and isn't proved for each kind of question.
impl Drop for Asked {
    fn drop(self) {
        let Asked {
            line: _,
            question: _,
        } = self;
    }
}

#[derive(Drop)]
pub struct TupleLine {
    pub line: usize,
    pub values: Texts,
}

#[derive(Drop)]
pub struct NodeLine {
    pub line: usize,
    pub node: NodeName,
}

/// A tree of cases, which leaves none open, or of which the budget of leaves was spent.
pub struct TreeLines {
    pub line: usize,
    pub budget: Option<u64>,
    pub nodes: TreeNodes,
}

// By hand, as for what was asked.
impl Drop for TreeLines {
    fn drop(self) {
        let TreeLines {
            line: _,
            budget: _,
            nodes: _,
        } = self;
    }
}

#[derive(Drop)]
pub enum Answer {
    Witness(TupleLine),
    Counter(TupleLine, TupleLine),
    Tree(TreeLines),
}

/// What a certificate says.
pub struct CertParts {
    pub asked: Asked,
    pub answer: Answer,
}

// By hand, as for what was asked.
impl Drop for CertParts {
    fn drop(self) {
        let CertParts {
            asked: _,
            answer: _,
        } = self;
    }
}

/// A certificate that can be written: the answer is one to the question, its nodes are one tree, and its names are names.
#[derive(Drop)]
pub struct Cert {
    parts: CertParts,
}

impl Model for Cert {
    ghost use Rattle.cert_text.specs.Written.{IsWrittenCert};
    ghost use Rattle.cert_text.specs.declared.cert.CertParts.{CertParts};

    ghost Value = { CertParts };

    ghost view = { λ cert. cert.parts };

    ghost invariant = { λ cert. IsWrittenCert cert.parts };
}

impl Cert {
    pub(crate) fn new(parts: CertParts) -> Cert
        requires { IsWrittenCert parts }
        ensures { result ≡ parts }
    {
        Cert { parts }
    }

    pub fn parts(&self) -> &CertParts
        ensures parts { result.now ≡ self.now }
        ensures written { IsWrittenCert self.now }
    {
        &self.parts
    }
}
