//! Queries of the worked document.

/// Record queries and aggregate queries, a line each.
pub const QUERIES: &str = "\
SELECT DocId FROM Document
SELECT DocId, Name.Url FROM Document
SELECT DocId, Name.Url FROM Document WHERE Name.Url IS NULL
SELECT Name.Language.Code, Name.Language.Country FROM Document WHERE Name.Language.Country = 'us'
SELECT Links.Forward FROM Document
SELECT Links.Forward, Links.Backward, DocId FROM Document WHERE Links.Forward > 0
SELECT DocId + Links.Forward AS x, DocId * 2 - 1 AS y FROM Document
SELECT Name.Url + '/' + Name.Language.Code AS place FROM Document
SELECT DocId, COUNT(Name.Language.Code) WITHIN Name AS codes FROM Document
SELECT COUNT(Name.Language.Country) WITHIN RECORD AS c, MIN(Links.Backward) WITHIN RECORD AS m FROM Document
SELECT SUM(Links.Forward) WITHIN RECORD AS s, MAX(Name.Url) WITHIN RECORD AS u FROM Document WHERE DocId <> 3
SELECT COUNT(Name.Language.Code) WITHIN Name.Language AS one, Name.Language.Country AS c FROM Document
SELECT DocId FROM Document WHERE Name.Language.Code LIKE '%1%'
SELECT DocId FROM Document WHERE NOT Name.Language.Code LIKE 'c_' OR DocId = 5
SELECT DocId FROM Document WHERE Name.Url CONTAINS 'x/1' AND DocId < 9
SELECT DocId FROM Document WHERE Links.Forward IS NULL
SELECT DocId FROM Document WHERE Links.Forward IS NOT NULL AND Links.Forward <= -1
SELECT DocId = 4 AS four, Name.Url = 'http://x/1' AS one FROM Document
SELECT COUNT(*) AS n FROM Document
SELECT COUNT(*) AS n, COUNT(DocId) AS d, COUNT(Name.Url) AS u, COUNT(Name.Language.Code) AS c FROM Document
SELECT SUM(DocId) AS s, MIN(DocId) AS a, MAX(DocId) AS z FROM Document
SELECT SUM(Links.Forward) AS f, SUM(Links.Backward) AS b FROM Document WHERE DocId > 8
SELECT MIN(Name.Url) AS a, MAX(Name.Language.Country) AS z FROM Document
SELECT COUNT(Links.Forward + DocId) AS n, SUM(Links.Forward * 3) AS s FROM Document
SELECT DocId, COUNT(*) AS n FROM Document GROUP BY DocId
SELECT Name.Url, COUNT(*) AS n FROM Document GROUP BY Name.Url
SELECT Name.Language.Country, COUNT(DocId) AS n FROM Document GROUP BY Name.Language.Country
SELECT Name.Language.Country, COUNT(*) AS n, SUM(DocId) AS s FROM Document GROUP BY Name.Language.Country
SELECT Name.Language.Code AS code, Name.Url AS url, COUNT(*) AS n FROM Document GROUP BY Name.Url, Name.Language.Code
SELECT DocId, SUM(Links.Forward) AS s, MAX(Name.Url) AS u FROM Document GROUP BY DocId
SELECT DocId, COUNT(Name.Language.Code) AS c FROM Document WHERE Name.Language.Code <> 'c1' GROUP BY DocId
SELECT Links.Forward, COUNT(*) AS n, MIN(DocId) AS least FROM Document GROUP BY Links.Forward
SELECT Links.Backward AS b, Links.Forward FROM Document WHERE DocId > 7 AND DocId < 12
SELECT MAX(DocId) AS m, COUNT(*) AS n FROM Document WHERE Name.Language.Country IS NULL
SELECT COUNT(Name.Url) AS n FROM Document WHERE FALSE
SELECT DocId FROM Document WHERE TRUE AND DocId = 1
SELECT Name.Url FROM Document WHERE Name.Url >= 'http://x/2' AND Name.Url < 'http://x/4'
SELECT -(DocId) AS minus, - Links.Forward AS f FROM Document WHERE Links.Forward < 3
SELECT MIN(DocId = 4) AS some, MAX(Name.Language.Country = 'us') AS us FROM Document
SELECT DocId, Name.Language.Country, COUNT(*) AS n FROM Document WHERE Name.Language.Country LIKE '%' GROUP BY DocId, Name.Language.Country
";
