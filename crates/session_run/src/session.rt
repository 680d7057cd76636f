//! A session: it begins clusters, carries out events and shows proxies, and prints the answers.

ghost use Rattle.std.specs.Prelude.{◌≡◌, ◌++◌, [], IfSome, MatchOption, None, OnErr, OnOk};
ghost use Rattle.std.specs.Prelude.{Option, Some};
ghost use Rattle.cluster_lines.specs.MetadataLines.{metadata_text, proxy_line};
ghost use Rattle.model.specs.Metadata.{metadata as metadata_of};
ghost use Rattle.model.specs.Serial.{IsSerial};
ghost use Rattle.model.specs.Turns.{TurnCluster};
ghost use Rattle.pages.specs.Printing.{Prints};
ghost use Rattle.session_run.specs.Session.{after_line, with_empty_line, line_text};
ghost use Rattle.session_run.specs.Session.{no_cluster_text, session_rules, show_text};
ghost use Rattle.session_run.specs.declared.line.Line.TheVariants as lines;

use crate::answers::print_fault;
use crate::line::{Line, Show};
use crate::reading::read_line;
use model::Config;
use pages::Page;
use sessions::Answering;
use std::alloc::Global;
use system_keys::OutOfMemory;
use turn_world::{Event, Proxy, Refusal, TurnWorld};
use turns_run::{carry_out, print_proxy, print_refusal};

/// A session: the cluster that a line has begun, if there is one.
#[derive(Drop)]
pub struct Session {
    cluster: Option<TurnWorld>,
}

impl Session {
    /// The session before its first line.
    pub fn new() -> Session
        ensures { result.cluster ≡ None }
    {
        Session { cluster: None }
    }

    /// The cluster, whose records obey the rule of commit.
    pub fn cluster(&self) -> Option<&TurnWorld>
        ensures cluster { MatchOption result (self.now.cluster ≡ None)
            (λ cluster. self.now.cluster ≡ Some cluster.now) }
        ensures serial { IfSome result (λ cluster.
            IsSerial cluster.now.config cluster.now.world.history) }
    {
        match &self.cluster {
            Some(cluster) => {
                let _ = cluster.config();
                Some(cluster)
            }
            None => None,
        }
    }

    /// Carries out what a line asks, and prints its answer. Fails only with `OutOfMemory`; then
    /// nothing is printed, and the session is unchanged.
    pub fn answer_line<P: Page>(
        &mut self,
        alloc: Global,
        line: Line,
        page: &mut P,
    ) -> Result<(), OutOfMemory>
        ensures text { OnOk result (Prints P.has_printed page.old page.new
            (with_empty_line (line_text self.old.cluster line))) }
        ensures ok { OnOk result (self.new.cluster ≡ after_line self.old.cluster line) }
        ensures unprinted { OnErr result (Prints P.has_printed page.old page.new []) }
        ensures unchanged { OnErr result (self.new.cluster ≡ self.old.cluster) }
    {
        self.answer_lines(alloc, line, page)?;
        page.push("\n");
        Ok(())
    }

    /// The same, but for the empty line that ends the answer.
    fn answer_lines<P: Page>(
        &mut self,
        alloc: Global,
        line: Line,
        page: &mut P,
    ) -> Result<(), OutOfMemory>
        ensures text { OnOk result (Prints P.has_printed page.old page.new
            (line_text self.old.cluster line)) }
        ensures ok { OnOk result (self.new.cluster ≡ after_line self.old.cluster line) }
        ensures unprinted { OnErr result (Prints P.has_printed page.old page.new []) }
        ensures unchanged { OnErr result (self.new.cluster ≡ self.old.cluster) }
    {
        match line {
            Line::Cluster(config) => self.begin(alloc, &config, page),
            Line::Event(event) => self.carry_out(event, page),
            Line::Show(show) => self.show(alloc, &show, page),
        }
    }

    /// Begins a new cluster in place of the last one.
    fn begin<P: Page>(
        &mut self,
        alloc: Global,
        config: &Config,
        page: &mut P,
    ) -> Result<(), OutOfMemory>
        ensures text { OnOk result (Prints P.has_printed page.old page.new
            (line_text self.old.cluster (lines.Cluster config.now))) }
        ensures ok { OnOk result (self.new.cluster
            ≡ after_line self.old.cluster (lines.Cluster config.now)) }
        ensures unprinted { OnErr result (Prints P.has_printed page.old page.new []) }
        ensures unchanged { OnErr result (self.new.cluster ≡ self.old.cluster) }
    {
        let cluster = TurnWorld::new(alloc, config)?;
        self.cluster = Some(cluster);
        page.push("cluster\n");
        Ok(())
    }

    /// Carries out an event, and prints its lines.
    fn carry_out<P: Page>(&mut self, event: Event, page: &mut P) -> Result<(), OutOfMemory>
        ensures text { OnOk result (Prints P.has_printed page.old page.new
            (line_text self.old.cluster (lines.Event event))) }
        ensures ok { OnOk result (self.new.cluster
            ≡ after_line self.old.cluster (lines.Event event)) }
        ensures unprinted { OnErr result (Prints P.has_printed page.old page.new []) }
        ensures unchanged { OnErr result (self.new.cluster ≡ self.old.cluster) }
    {
        match &mut self.cluster {
            Some(cluster) => carry_out(event, cluster, page),
            None => {
                print_no_cluster(page);
                Ok(())
            }
        }
    }

    /// Prints a proxy.
    fn show<P: Page>(&self, alloc: Global, show: &Show, page: &mut P) -> Result<(), OutOfMemory>
        ensures text { OnOk result (Prints P.has_printed page.old page.new
            (line_text self.now.cluster (lines.Show show.now))) }
        ensures unprinted { OnErr result (Prints P.has_printed page.old page.new []) }
    {
        match &self.cluster {
            Some(cluster) => print_show(alloc, cluster, show, page),
            None => {
                print_no_cluster(page);
                Ok(())
            }
        }
    }
}

impl Answering for Session {
    ghost State = { Option TurnCluster };

    ghost state = { λ session. session.cluster };

    ghost rules = { session_rules };

    fn answer<P: Page>(
        &mut self,
        alloc: Global,
        line: &[u8],
        page: &mut P,
    ) -> Result<(), OutOfMemory> {
        match read_line(alloc, line) {
            Ok(line) => self.answer_line(alloc, line, page),
            Err(fault) => print_fault(alloc, fault, page),
        }
    }
}

/// Prints that there is no cluster.
fn print_no_cluster<P: Page>(page: &mut P)
    ensures { Prints P.has_printed page.old page.new no_cluster_text }
{
    page.push("refused 72 NoCluster\n");
}

/// Prints a proxy of the cluster, or that it has none of this number.
fn print_show<P: Page>(
    alloc: Global,
    cluster: &TurnWorld,
    show: &Show,
    page: &mut P,
) -> Result<(), OutOfMemory>
    ensures text { OnOk result (Prints P.has_printed page.old page.new
        (show_text cluster.now show.now.proxy show.now.ask)) }
    ensures unprinted { OnErr result (Prints P.has_printed page.old page.new []) }
{
    match cluster.proxy(show.proxy) {
        Some(proxy) => print_found_proxy(alloc, proxy, show, page),
        None => {
            print_refusal(page, &Refusal::NoSuchProxy);
            Ok(())
        }
    }
}

/// Prints a proxy that the cluster has.
fn print_found_proxy<P: Page>(
    alloc: Global,
    proxy: &Proxy,
    show: &Show,
    page: &mut P,
) -> Result<(), OutOfMemory>
    ensures text { OnOk result (Prints P.has_printed page.old page.new
        (proxy_line show.now.proxy
        ++ metadata_text proxy.now.version (metadata_of proxy.now.journal) show.now.ask)) }
    ensures unprinted { OnErr result (Prints P.has_printed page.old page.new []) }
{
    let mut text = String::new(alloc);
    print_proxy(alloc, &mut text, show.proxy, proxy, show.ask.as_slice())?;
    page.push(text.as_str());
    Ok(())
}
